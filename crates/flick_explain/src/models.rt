//! Declarations whose ends are tried as what may come next, for each language: words with one blank between them.

use crate::statements::Container;
use idl_lex::Front;

/// Declarations of the ONC RPC language.
const ONC: &[u8] = b"const qz1 = - 1 ;\n\
typedef unsigned int qz1 ;\n\
typedef unsigned qz1 ;\n\
typedef struct qz9 qz1 ;\n\
typedef int qz1 [ 1 ] ;\n\
typedef int qz1 < 1 > ;\n\
typedef int * qz1 ;\n\
typedef opaque qz1 [ 1 ] ;\n\
typedef opaque qz1 < 1 > ;\n\
typedef string qz1 < 1 > ;\n\
enum qz1 { qz2 = 71 , qz3 } ;\n\
struct qz1 { unsigned int qz2 ; } ;\n\
struct qz1 { int qz2 [ 1 ] ; } ;\n\
struct qz1 { int qz2 < 1 > ; } ;\n\
struct qz1 { int * qz2 ; } ;\n\
struct qz1 { opaque qz2 [ 1 ] ; } ;\n\
struct qz1 { string qz2 < 1 > ; } ;\n\
union qz1 switch ( unsigned int qz2 ) { case 71 : int qz3 ; default : void ; } ;\n\
union qz1 switch ( int qz2 ) { case 0 : int * qz3 ; } ;\n\
union qz1 switch ( int qz2 ) { case 0 : case 71 : int qz3 [ 1 ] ; } ;\n\
union qz1 switch ( int qz2 ) { case 0 : int qz3 < 1 > ; } ;\n\
union qz1 switch ( bool qz2 ) { case TRUE : string qz3 < 1 > ; } ;\n\
program qz1 { version qz2 { void qz3 ( void ) = 3999999999 ; } = 3999999997 ; } = 3999999998 ;\n\
version qz2 { void qz3 ( void ) = 3999999999 ; } = 3999999997 ;\n\
unsigned int qz3 ( unsigned int , int ) = 3999999999 ;\n";

/// Declarations of CORBA IDL.
const CORBA: &[u8] = b"const unsigned long qz1 = ( 1 + 1 ) ;\n\
typedef unsigned long qz1 [ 1 ] , qz2 ;\n\
typedef :: qz9 qz1 ;\n\
typedef sequence < long , 1 > qz1 ;\n\
typedef sequence < long > qz1 ;\n\
typedef string < 1 > qz1 ;\n\
enum qz1 { qz2 , qz3 } ;\n\
struct qz1 { unsigned long qz2 [ 1 ] , qz3 ; } ;\n\
struct qz1 { :: qz9 qz2 ; } ;\n\
struct qz1 { sequence < long , 1 > qz2 ; } ;\n\
struct qz1 { string < 1 > qz2 ; } ;\n\
union qz1 switch ( unsigned long ) { case 71 : long qz2 [ 1 ] ; default : long qz3 ; } ;\n\
union qz1 switch ( long ) { case 0 : case 71 : sequence < long , 1 > qz2 ; } ;\n\
union qz1 switch ( boolean ) { case TRUE : string < 1 > qz2 ; } ;\n\
union qz1 switch ( char ) { case 'q' : long qz2 ; } ;\n\
exception qz1 { long qz2 ; } ;\n\
module qz1 { const long qz2 = 1 ; } ;\n\
interface qz1 : qz9 , qz8 { void qz2 ( ) ; } ;\n\
readonly attribute unsigned long qz1 , qz2 ;\n\
attribute long qz1 ;\n\
attribute string < 1 > qz1 ;\n\
attribute :: qz9 qz1 ;\n\
oneway void qz1 ( in unsigned long qz2 , inout long qz3 ) raises ( qz9 , :: qz8 ) ;\n\
oneway void qz1 ( in long qz2 ) ;\n\
void qz1 ( in unsigned long qz2 , inout long qz3 ) ;\n\
void qz1 ( in string < 1 > qz2 ) ;\n\
void qz1 ( in sequence < long , 1 > qz2 ) ;\n\
void qz1 ( in :: qz9 qz2 ) ;\n";

/// Statements of MIG files.
const MIG: &[u8] = b"subsystem qz1 ( 1 + 1 ) ;\n\
type qz1 = int ;\n\
type qz1 = ( int , 32 ) ;\n\
type qz1 = array [ 1 ] of int ;\n\
type qz1 = array [ * : 1 ] of int ;\n\
type qz1 = struct [ 1 ] of int ;\n\
routine qz1 ( requestport qz2 : mach_port_t ; in qz3 : int ) ;\n\
simpleroutine qz1 ( qz2 : mach_port_t ) ;\n\
skip ;\n\
userprefix qz1 ;\n\
import < qz.h > ;\n";

/// The declarations whose ends are tried.
pub fn models_of(front: Front) -> &'static [u8] {
    match front {
        Front::Onc => ONC,
        Front::Corba => CORBA,
        Front::Mig => MIG,
    }
}

/// How a container begins, of a name of its own.
pub fn opener(container: Container) -> &'static [u8] {
    match container {
        Container::Module => b"module qz4 { ",
        Container::Interface => b"interface qz5 { ",
        Container::Program => b"program qz4 { ",
        Container::Version => b"version qz5 { ",
    }
}

/// How a container ends.
pub fn closer(container: Container) -> &'static [u8] {
    match container {
        Container::Module | Container::Interface => b" } ;",
        Container::Program => b" } = 3999999998 ;",
        Container::Version => b" } = 3999999997 ;",
    }
}
