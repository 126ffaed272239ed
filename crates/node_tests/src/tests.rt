mod lossy_fabric_calls;
mod zeus_node_calls;
