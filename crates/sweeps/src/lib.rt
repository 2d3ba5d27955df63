// Sweeps over any graph: what is kept while known costs are lowered, and what holds where none can be: theory alone, no code.
// See specs/.
#![tactic(auto)]
