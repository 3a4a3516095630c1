// Theorems alone: posting and writing undo each other (document 01, "Write"). `specs/RoundTrip.antt` states them.
#![tactic(auto)]
