mod script_lang_calls;
mod zeus_text_calls;
