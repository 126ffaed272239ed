//! The live run as plain data: cells, clients, the membership service, the merge of their journals, and the drive.
#![tactic(auto)]
