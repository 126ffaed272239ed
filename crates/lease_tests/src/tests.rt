mod zeus_lease_calls;
