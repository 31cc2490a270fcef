// Descriptors: the layout, whose definitions stand in specs/, and its tags for the code.
#![tactic(auto)]

// The types of an item.
pub const BOOL: u32 = 0x626f_6f6c;

pub const CLASS: u32 = 0x7479_7065;

pub const GLOBAL_CLASS: u32 = 0x476c_6243;

pub const DOUBLE: u32 = 0x646f_7562;

pub const ENUMERATED: u32 = 0x656e_756d;

pub const ALIAS: u32 = 0x616c_6973;

pub const PATH: u32 = 0x5074_6820;

pub const RAW: u32 = 0x7464_7461;

pub const LONG: u32 = 0x6c6f_6e67;

pub const COMP: u32 = 0x636f_6d70;

pub const TEXT: u32 = 0x5445_5854;

pub const UNIT_DOUBLE: u32 = 0x556e_7446;

pub const LIST: u32 = 0x566c_4c73;

pub const OBJECT: u32 = 0x4f62_6a63;

pub const GLOBAL_OBJECT: u32 = 0x476c_624f;

pub const REFERENCE: u32 = 0x6f62_6a20;

pub const ARRAY: u32 = 0x4f62_4172;

// The type in an object array's pair: `UnFl`.
pub const COLUMN: u32 = 0x556e_466c;

// The forms of a reference item: `Clss`, `Enmr`, `prop`, `name`, `Idnt`, `indx`, `rele`.
pub const FORM_CLASS: u32 = 0x436c_7373;

pub const FORM_ENUMERATED: u32 = 0x456e_6d72;

pub const FORM_PROPERTY: u32 = 0x7072_6f70;

pub const FORM_NAME: u32 = 0x6e61_6d65;

pub const FORM_IDENTIFIER: u32 = 0x4964_6e74;

pub const FORM_INDEX: u32 = 0x696e_6478;

pub const FORM_OFFSET: u32 = 0x7265_6c65;

// The eight units: `#Ang`, `#Rsl`, `#Rlt`, `#Nne`, `#Prc`, `#Pxl`, `#Mlm`, `#Pnt`.
pub const ANGLE: u32 = 0x2341_6e67;

pub const DENSITY: u32 = 0x2352_736c;

pub const DISTANCE: u32 = 0x2352_6c74;

pub const NONE: u32 = 0x234e_6e65;

pub const PERCENT: u32 = 0x2350_7263;

pub const PIXELS: u32 = 0x2350_786c;

pub const MILLIMETRES: u32 = 0x234d_6c6d;

pub const POINTS: u32 = 0x2350_6e74;
