// No code: how every reader and every writer is defined, by rows of which the first that holds answers, and the one law of it.
// Relies on nothing.
#![tactic(auto)]
