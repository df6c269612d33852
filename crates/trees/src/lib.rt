// From the node list of a sentence to the tree that it writes: the definitions of specs/Listed and the laws about them.
// A list that nests is written by exactly one tree.
