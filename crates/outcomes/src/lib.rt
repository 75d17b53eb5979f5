// How an outcome of the model shows in the answer, the reply buffer and the lent state: definitions that the commands' contracts cite, and laws.
#![tactic(auto)]
