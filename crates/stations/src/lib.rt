// Stations one after another, each of which takes a frame and sends it on: definitions and theorems over the calls, and no code.
#![tactic(auto)]
