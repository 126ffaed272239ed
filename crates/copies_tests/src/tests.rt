mod object_table_calls;
mod replica_reads_calls;
