// Conditions within their limits, and the lines that send their records. Nothing here runs.
#![tactic(auto)]
