mod command_words_calls;
mod zeus_io_calls;
