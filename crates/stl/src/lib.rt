// Binary STL, written and read: 80 bytes, the count of triangles, and 50 bytes for each (document 02, No. 1). Definitions and laws.
#![tactic(auto)]
