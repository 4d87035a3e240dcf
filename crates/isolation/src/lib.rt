// Laws only: an advance reads nothing of memory but its packet and its data.
#![tactic(auto)]
