mod local_rules_calls;
