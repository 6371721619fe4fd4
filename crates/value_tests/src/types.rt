// The types that these tests take by name.
use ssz_schema::Schema;
use ssz_schema_json::read_schema;
use std::alloc::Global;
use std::test::Fail;

// New takes b of P alone, and Same all. Flag is a union, Two and Three are lists of other limits.
// Lists has at most eight lists of at most four numbers.
const TYPES: &[u8] = br#"{"ssz":1,"types":[
["P",{"container":[["a","uint64"],["b","uint64"]]}],
["Same",{"container":[["a","uint64"],["b","uint64"]]}],
["New",{"container":[["b","uint64"],["a","uint8"],["c","uint64"]]}],
["Flag",{"union":["boolean"]}],
["Two",{"list":["uint8",2]}],
["Three",{"list":["uint8",3]}],
["Shorts",{"list":["uint16",2]}],
["Record",{"container":[["a","boolean"],["b","Two"]]}],
["Bits",{"bitvector":3}],
["Either",{"union":[null,"boolean"]}],
["Pairs",{"vector":["Record",2]}],
["Eight",{"vector":["uint64",8]}],
["Lists",{"list":[{"list":["uint64",4]},8]}]]}"#;

pub fn schema(alloc: Global) -> Result<Schema, Fail> {
    Ok(read_schema(alloc, TYPES)?)
}
