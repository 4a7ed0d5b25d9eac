// No code: the definitions and theorems of the memory card (section 13), in specs/.

#![tactic(auto)]
