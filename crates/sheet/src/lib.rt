// The bench sheet: document 01's starred numbers, held against what the calls owe. There is no code here, only the table in specs/ and
// its proof.

#![tactic(auto)]
