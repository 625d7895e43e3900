//! The types of the attributes that messages are read from and written with (RFC 8855, section
//! 5.2).

pub(crate) const BENEFICIARY_ID: u8 = 1;

pub(crate) const FLOOR_ID: u8 = 2;

pub(crate) const FLOOR_REQUEST_ID: u8 = 3;

pub(crate) const PRIORITY: u8 = 4;

pub(crate) const REQUEST_STATUS: u8 = 5;

pub(crate) const ERROR_CODE: u8 = 6;

pub(crate) const PARTICIPANT_PROVIDED_INFO: u8 = 8;

pub(crate) const STATUS_INFO: u8 = 9;

pub(crate) const SUPPORTED_ATTRIBUTES: u8 = 10;

pub(crate) const SUPPORTED_PRIMITIVES: u8 = 11;

pub(crate) const USER_DISPLAY_NAME: u8 = 12;

pub(crate) const USER_URI: u8 = 13;

pub(crate) const BENEFICIARY_INFORMATION: u8 = 14;

pub(crate) const FLOOR_REQUEST_INFORMATION: u8 = 15;

pub(crate) const REQUESTED_BY_INFORMATION: u8 = 16;

pub(crate) const FLOOR_REQUEST_STATUS: u8 = 17;

pub(crate) const OVERALL_REQUEST_STATUS: u8 = 18;
