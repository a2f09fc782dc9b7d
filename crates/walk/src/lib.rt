// What a walk of a box over a grid's tables reads, what a box holds by class, and the laws of both. Definitions and laws alone.
#![tactic(auto)]
