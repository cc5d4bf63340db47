// No code: the book, what each call does to it, and the laws of a step.

#![tactic(auto)]
