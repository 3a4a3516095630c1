// Demand 3 of the customer, as theorems over what the contracts of the library cite. There is no code here.
#![tactic(auto)]
