mod local_txn_calls;
