// Laws that the layers above cite, on tests, lists, counts, sums, zeros, padding, promises, copying and going along a list: definitions and proofs alone, no code. See specs/.
#![tactic(auto)]
