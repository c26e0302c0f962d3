// Laws on the integers. There is no code here.
#![tactic(auto)]
