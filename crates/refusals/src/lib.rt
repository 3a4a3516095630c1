// The order of refusals, document 01, "Numbers from the state", as a definition with its laws, and facts
// on tests that conditions are made of. There is no code here.
#![tactic(auto)]
