// T-02's theorem: where only the variables that occur in a path step, every value and every verdict is what it was. There is no code
// here: the meaning before T-02 is in specs/Base, the theorem in specs/Unchanged.
#![tactic(auto)]
