// Tests over lists and over places, and lists made place by place, as definitions with their laws. There
// is no code here.
#![tactic(auto)]
