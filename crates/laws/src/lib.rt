// Laws that the definitions have and that no proof cites now; nothing here computes.
#![tactic(auto)]
