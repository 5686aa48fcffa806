// The numbers of the kinds that the code names. The definition numbers all kinds (specs/Kinds.antt), and every contract in which one
// of these stands compares it with the definition's.
// They are numbers and no enum, since the definition's `Item` holds a kind's number, the place of the source's name in one list (`kind`,
// document 01), and nearly all kinds run along with the places of the tables (`kind_at` of crate `table_entries`): an enum would name
// 173 kinds once more, and each would be turned into its number wherever an item is made.
pub const AND: u32 = 3;

pub const EXISTS: u32 = 17;

pub const FORALL: u32 = 20;

pub const IF: u32 = 23;

pub const LET: u32 = 31;

pub const MATCH: u32 = 33;

pub const IDENT: u32 = 65;

pub const TILDE: u32 = 66;

pub const CONJUNCTION: u32 = 68;

pub const DISJUNCTION: u32 = 69;

pub const SQUIGGLY_RARROW: u32 = 82;

pub const RARROW: u32 = 83;

pub const LONG_LEFT_ARROW: u32 = 84;

pub const LARROW: u32 = 85;

pub const IFF: u32 = 86;

pub const IMPLIES: u32 = 87;

pub const COLON_COLON: u32 = 99;

pub const COLON_EQUALS: u32 = 100;

pub const SEMICOLON: u32 = 101;

pub const PIPE_RIGHT: u32 = 112;

pub const NAME: u32 = 119;

pub const OPINFIX3L: u32 = 120;

pub const OPINFIX0A: u32 = 121;

pub const OPINFIX0C: u32 = 122;

pub const OPPREFIX: u32 = 123;

pub const SPLICE: u32 = 124;

pub const SPLICET: u32 = 125;

pub const BACKTICK_PERC: u32 = 126;

pub const BACKTICK_HASH: u32 = 127;

pub const BACKTICK_AT: u32 = 128;

pub const SEQ_BANG_LBRACK: u32 = 129;

pub const PRAGMA_SHOW_OPTIONS: u32 = 130;

pub const PRAGMA_SET_OPTIONS: u32 = 131;

pub const PRAGMA_RESET_OPTIONS: u32 = 132;

pub const PRAGMA_PUSH_OPTIONS: u32 = 133;

pub const PRAGMA_POP_OPTIONS: u32 = 134;

pub const PRAGMA_RESTART_SOLVER: u32 = 135;

pub const PRAGMA_PRINT_EFFECTS_GRAPH: u32 = 136;

pub const PRAGMA_CHECK: u32 = 137;

pub const PRAGMA_EVAL: u32 = 138;

pub const MATCH_OP: u32 = 139;

pub const IF_OP: u32 = 140;

pub const LET_OP: u32 = 141;

pub const EXISTS_OP: u32 = 142;

pub const FORALL_OP: u32 = 143;

pub const AND_OP: u32 = 144;

pub const SEMICOLON_OP: u32 = 145;

pub const OP_MIXFIX_ASSIGNMENT: u32 = 146;

pub const OP_MIXFIX_ACCESS: u32 = 147;

pub const STRING: u32 = 148;

pub const BLOB: u32 = 149;

pub const USE_LANG_BLOB: u32 = 150;

pub const INT8: u32 = 151;

pub const UINT16: u32 = 152;

pub const INT16: u32 = 153;

pub const UINT32: u32 = 154;

pub const INT32: u32 = 155;

pub const UINT64: u32 = 156;

pub const INT64: u32 = 157;

pub const SIZET: u32 = 158;

pub const OPINFIX3R: u32 = 159;

pub const OPINFIX4: u32 = 160;

pub const OPINFIX0B: u32 = 161;

pub const OPINFIX0D: u32 = 162;

pub const OPINFIX1: u32 = 163;

pub const OPINFIX2: u32 = 164;

pub const EOF: u32 = 165;

pub const INT: u32 = 166;

pub const CHAR: u32 = 167;

pub const BACKTICK: u32 = 168;

pub const UINT8: u32 = 169;

pub const REAL: u32 = 170;

pub const PIPE_LEFT: u32 = 171;

pub const DOT_DOT: u32 = 172;

pub const ERROR: u32 = 173;
