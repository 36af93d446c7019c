// No code: document 01's marked examples T1 to T12, shown together of the definitions by a single statement (specs/Marked.antt).
#![tactic(auto)]
