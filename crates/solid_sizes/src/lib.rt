// Laws on the sizes of what a part's polygons and faces have: areas, normals, centroids; this crate has no functions. proofs/Lib.antt lists the laws.
#![tactic(auto)]
