// What the promises of the library's functions say where a caller stands: theory only.
#![tactic(auto)]
