mod crash_replay_calls;
mod membership_calls;
