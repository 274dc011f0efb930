// No code: what a caller is promised of the public entries, by the grammar of the file.
#![tactic(auto)]
