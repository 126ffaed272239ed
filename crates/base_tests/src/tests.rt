mod zeus_base_calls;
mod zeus_model_calls;
mod zeus_packet_calls;
mod zeus_txn_calls;
