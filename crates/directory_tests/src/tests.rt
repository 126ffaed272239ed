mod directory_calls;
mod owner_entry_calls;
