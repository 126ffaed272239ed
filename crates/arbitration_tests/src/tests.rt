mod arbitration_calls;
