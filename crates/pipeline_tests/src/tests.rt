mod commit_pipeline_calls;
