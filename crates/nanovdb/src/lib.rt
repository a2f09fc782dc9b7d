// The decode as a definition: what decode_scalar_grid and decode_density_grid answer and leave for all bytes. The code is in `decode`.
#![tactic(auto)]
