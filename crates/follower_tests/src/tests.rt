mod follower_log_calls;
