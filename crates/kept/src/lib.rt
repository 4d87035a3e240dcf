// Laws only: an advance keeps the reel well formed and the position a bound.
#![tactic(auto)]
