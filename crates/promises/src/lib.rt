// Every promise of the project, each with its statement as its type: proofs/Promises. There is no code here. A promise that is
// gone, or whose theorem says less, fails the check of this crate.
#![tactic(auto)]
