mod tick_rules_calls;
