// Laws only: one reel to units of different record limits and EOT margins.
#![tactic(auto)]
