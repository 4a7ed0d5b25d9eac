// No code: what is proved of the read call, in specs/.

#![tactic(auto)]
