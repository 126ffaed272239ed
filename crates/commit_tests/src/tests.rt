mod reliable_commit_calls;
