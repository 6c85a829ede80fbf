// The rules of the scan of recovery volumes as definitions, and their laws: no code.
#![tactic(auto)]
