// Definitions over lists that the layers above share, and their laws. There is no code here.
#![tactic(auto)]
