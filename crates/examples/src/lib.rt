// The worked examples of document 01, and those of 02's requests, as theorems about the definitions. There is no code here.
#![tactic(auto)]
