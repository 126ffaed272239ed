mod commit_rules_calls;
