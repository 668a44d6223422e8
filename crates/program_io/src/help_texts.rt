//! The longer texts of the help. Each stands after the usage of a command, or of the whole program.

pub(crate) const ABOUT: &str = "\
Lists and rewrites PDB and PRC files, the database files of Palm OS, and makes,
checks and changes heap images";

pub(crate) const IMAGES: &str = "\
A heap image is a file of 64 to 16777208 bytes, a multiple of 8. Its layout is
this project's own: a copy of a device's memory is no heap image, and no
command reads one. A header of 16 bytes is followed by a table of slots, one
for each chunk of memory that may move, and by the chunks themselves, which
fill the rest: free ones, movable ones and fixed ones. Databases are made of
movable chunks, and a directory lists them.

Exit status:
  0  done
  1  the image, the file or the text was refused; standard output says why:
     'bad' and the first fault, or 'bad TooLarge' if 'migrate', 'pack', 'put',
     'canonical --keep' or 'import' would make it too large, or 'line', the
     number of the first faulty line and what is wrong in it; or 'refused',
     the number and the name of a refusal, if 'import' refused a file, no
     database has a NAME of 'export', or FILE of 'get' or 'put' does not have
     the block; or 'bad EmptyPart' if a block of 'put' can not be empty. 'get'
     prints these lines on standard error
  2  the words were refused, or there is no image of that SIZE with that many
     SLOTS, or 'explain' knows no such WORD
  3  a file could not be read or written, or is too long: at most 4294967295
     bytes for 'list', 'get' and 'canonical --check', 4294967293 for 'put',
     'pack', 'unpack', 'canonical' and 'salvage', and 16777216 for the others;
     or standard output could not be written; or DIR of 'unpack' or a file of
     'export' is there; or OUT looks like a PDB or PRC file that an image
     would replace, like an image that a PDB or PRC file would replace, or
     like one of these, and a picture would replace it
  4  there was not enough memory
  5  'run --strict' ran all lines, and one of them was refused
On 3 and 4 the first line on standard error is 'fault read', 'fault write' or
'fault memory'; after the first two a second line names the file and says why.
There is no line if a reader, as 'head', has closed standard output.
Of several files of 'list' or 'canonical --check' the greatest status counts.";

pub(crate) const NEW_IMAGES: &str = "\
For example, 'palmheap new 65536 512 device.img' writes an image of 64 KB with
512 slots, and prints 'ok'. If there is no image of this SIZE with that many
SLOTS, it prints 'bad BadSize' or 'bad BadSlotCount', and the exit status is
2.";

pub(crate) const CHECKS: &str = "\
For example, 'palmheap check device.img' prints the size of the image, its
slots, its movable and fixed chunks, its free bytes, and its databases:

  ok size 65536 slots 512 movable 3 fixed 0 free 63336
  databases 1

If the file is no image, it prints the first fault, and the exit status is 1:

  bad BadChunk 48

'palmheap explain BadChunk' prints what that means. If the file looks like a
PDB or PRC file, standard error says so.

With --json it prints the same facts, and the fault with its numbers:

  {\"size\":65536,\"slots\":512,\"movable\":3,\"fixed\":0,\"free\":63336,\"databases\":1}

  {\"fault\":\"BadChunk\",\"numbers\":[48]}";

pub(crate) const MIGRATION: &str = "\
For example, 'palmheap migrate device.img new.img' writes new.img and prints
'ok'.

An image that 'new' writes has one table, and when its slots are in use no
more chunks can be movable. With a chain of tables the script line 'moreslots'
adds 15 slots. With an even number of slots the image grows by 8 bytes, and
the names of fixed chunks are greater by 8. All else is kept. An image that
has a chain of tables is written as it is.";

pub(crate) const SCRIPTS: &str = "\
For example, with the script calls.txt

  import memos 1
  reccount memos
  export memos

'palmheap run device.img calls.txt new.img MemoDB.pdb' prints a reply to each
line, and writes the changed image to new.img and the exported file to
new.img.1. The replies are:

  ok
  ok 1
  ok 97

With --numbers each reply has the number of its line and a space before it.
Refused lines leave the exit status 0, but with --strict it is 5.

If a line imports a FILE that was not given, it is refused, and standard error
names it. A run replaces the files that it exports. If an earlier run exported
more, its other files stay, and standard error names them.

With '-' as SCRIPT the lines of standard input run as they come, so another
program can wait for the reply of a line before it sends the next. A faulty
line ends the run there: the replies stay, and no image is written.

A script is a text of lines. Each is a call of the memory manager, on
databases, on their records, their resources or their files, and prints 'ok'
with what the call answers, or 'refused' with the number and the name of the
refusal. A chunk goes by a label, which 'new', 'ptrnew' and 'bind' give it: a
letter, then letters, digits or '_'; so do the data of a record, by 'recnew',
'recget', 'recquery', 'recdetach' and 'recreplace', the data of a resource, by
'resnew', 'resinfo' and 'resdetach', and an info block, by 'info' and
'infotake'. A database goes by a label of its own, which 'create', 'find',
'nth' and 'import' give it.

  bind A NAME         new A SIZE OWNER    ptrnew A SIZE OWNER
  free A              resize A SIZE       setowner A OWNER
  lock A, unlock A    size A, owner A, locks A
  read A AT COUNT     write A AT HEX      set A AT COUNT BYTE
  strcopy A AT \"TEXT\"                   freeowner OWNER
  freebytes           largest, compact    moreslots

  create D \"NAME\" \"TYPE\" \"CREATOR\" RESOURCES DATE
  find D \"NAME\"       nth D INDEX         dbcount
  dbinfo D            dbdelete D
  dbset D \"NAME\" ATTRIBUTES VERSION CREATED MODIFIED BACKUP \"TYPE\" \"CREATOR\"
  infoset D BLOCK A   info D BLOCK A      infotake D BLOCK OWNER A

  recnew D AT SIZE A  recget D INDEX A    recquery D INDEX A
  recdelete D INDEX   recarchive D INDEX  recremove D INDEX
  recmove D FROM TO   recrelease D INDEX DIRTY
  recinfo D INDEX     recresize D INDEX SIZE
  reccount D          recfind D ID        recdetach D INDEX OWNER A
  recattach D AT A    recreplace D INDEX A OWNER B
  recset D INDEX ATTRIBUTES ID
  catcount D CATEGORY                     catdelete D CATEGORY
  catnext D FROM CATEGORY                 catpos D INDEX CATEGORY
  catmove D TO FROM DIRTY

  resnew D \"TYPE\" ID SIZE A               resattach D \"TYPE\" ID A
  resinfo D INDEX A   resremove D INDEX   resdetach D INDEX OWNER A
  resresize D INDEX SIZE                  resset D INDEX \"TYPE\" ID
  resfind D \"TYPE\" ID                     restype D \"TYPE\" NTH
  rescount D

  import D FILE-NUMBER                    export D

'write', 'set' and 'strcopy' need a locked or a fixed chunk. OWNER is 1 to 14.
RESOURCES is 1 if the entries are resources, and 0 if they are records. DIRTY
is 1 if the record is to be dirty, and else 0. BLOCK is 'app' or 'sort'.
'recreplace' gives a record the data A, and its old data to OWNER as B.
CATEGORY is 0 to 15, and 255 for all of them in 'catcount', 'catnext' and
'catpos'. 'catmove' gives the records of category FROM the category TO. TYPE
and CREATOR have four bytes. The ID of a resource is below 65536. 'resfind'
finds the first resource of a TYPE and an ID, 'restype' the NTH of a TYPE.
Records, resources and those of a TYPE are counted from 0. Numbers are
decimal, or hex after '0x'. HEX is hex digits, or '-' for no byte. A line that
is empty or starts with '#' is passed over.";

pub(crate) const MAPS: &str = "\
For example, 'palmheap map device.img' prints rows as this one:

    2816 aaaa*bbb:........Laccaaaaaaaaaaaaaaaaaaaaaaaaaaacbbbbcaaaaaaaaaa

A row has an offset and 64 marks, one for each cell of equally many bytes. The
first line says how many bytes a cell has. The mark of a cell is the first of
these that fits:

  F    a fixed chunk
  L    a chunk with a lock
  .    nothing but free space
  :    at least half of it free
  *    the directory, or the header of a database
  a    data of a database, by its letter; the last lines name the databases
  #    another movable chunk

The line 'free' has the free bytes, in how many pieces they are, and how many
bytes the largest piece has.

'palmheap map device.img device.svg' draws the same for a browser, and prints
'ok', for OUT '-' on standard error. Databases have colours, fixed and locked
chunks red frames, and a white line lies between free chunks that are not
joined. The bar over the rows shows what is used, the largest free piece, what
a compact adds to it, and what is free in other stretches. At the right of a
row is the largest room of the stretches that begin in it.";

pub(crate) const LISTINGS: &str = "\
For example, 'palmheap list MemoDB.pdb' prints:

  ok 97
  name \"MemoDB\"
  attributes 0000
  version 0
  created 3878595035 2026-11-27 03:30:35
  modified 0 never
  backup 0 never
  number 0
  type \"DATA\"
  creator \"memo\"
  seed 00000000
  app none
  sort none
  records 1
  0 01 1 88 9
  needs 168 bytes and 3 slots in a heap
  canonical

The first line has the length of the file. Attributes and the seed are in hex.
Dates are seconds since 1904-01-01 00:00:00 UTC, with the date and time after
them. A date below 2^31 has seconds since 1970, as programs for electronic
books write it, and its line ends in 'since 1970'. 'app' and 'sort' have the
offset and the length of an info block, or 'none'. An entry has its index, its
values, and the offset and length of its data: the values of a record are its
attributes in hex and its ID, those of a resource its type and its id.

The line 'needs' has the least SIZE and SLOTS with which an image of 'palmheap
new' takes the database. If these are above 16777208 or 65535, no image does.

The last line is 'canonical' if 'palmheap canonical' would write the file as
it is, byte for byte. Else it is 'changes' and words that say what would
change:

  busy    a record is busy; in the new file it is not
  filler  the bytes between the entries and the first block aren't two zeros
  ids     a record gets another ID, since its own is 0, or that of an earlier
          record
  name    in its field, the name is followed by other bytes than zeros
  order   the blocks are not in the order of the list

A file that cannot be read as a database prints its first fault and the offset
of the field that is wrong, and the exit status is 1:

  bad BadOffset 1
  at 86

With --json the same facts are one JSON document, on one line:

  {\"size\":97,\"name\":\"MemoDB\",\"name_hex\":\"4d656d6f4442\",\"attributes\":0,
   \"version\":0,\"created\":3878595035,\"created_utc\":\"2026-11-27 03:30:35\",
   \"created_since\":1904,\"modified\":0,\"modified_utc\":null,
   \"modified_since\":null,\"backup\":0,\"backup_utc\":null,
   \"backup_since\":null,\"number\":0,\"type\":\"DATA\",
   \"type_hex\":\"44415441\",\"creator\":\"memo\",
   \"creator_hex\":\"6d656d6f\",\"seed\":0,\"app\":null,\"sort\":null,\"kind\":\"records\",
   \"entries\":[{\"index\":0,\"attributes\":1,\"id\":1,\"offset\":88,\"length\":9}],
   \"needs\":{\"size\":168,\"slots\":3},\"changes\":[]}

  {\"fault\":\"BadOffset\",\"numbers\":[1],\"at\":86}

Attributes, the seed and dates are numbers. A date other than 0 is followed by
its text in UTC, and by the year from which its seconds count, 1904 or 1970.
'app', 'sort', and the offset and the length of data are null if there are
none. A byte outside ASCII is the character of its Windows-1252 code. The hex
digits of all bytes follow.

With several FILEs, a line with the path comes before each listing, and each
JSON document begins with the path. 'palmheap list a.pdb b.pdb' prints:

  ==> a.pdb <==
  ok 97
  ..
  ==> b.pdb <==
  bad BadOffset 1
  at 86

'palmheap list --json a.pdb b.pdb' prints:

  {\"path\":\"a.pdb\",\"size\":97, ..}
  {\"path\":\"b.pdb\",\"fault\":\"BadOffset\",\"numbers\":[1],\"at\":86}

With --path the same is printed for one FILE, as 'xargs' may give. If a file
is refused or can't be read, the others are listed all the same. The exit
status is the greatest of those of all files. If standard output can't be
written, no other file is read, and it is 3.";

pub(crate) const CANONICAL_USAGE: &str = "\
palmheap canonical [--keep <KEEP>] <FILE> <OUT>
       palmheap canonical --check [--keep <KEEP>] [--path] <FILE>...";

pub(crate) const CANONICAL_FORMS: &str = "\
For example, 'palmheap canonical old.pdb new.pdb' writes new.pdb and prints
'ok' with its length, and a line that says what changed, as 'palmheap list'
does:

  ok 112
  changes busy ids order

In the new file the entries are followed by two zero bytes, and then by the
AppInfo block, the SortInfo block and the data, in the order of the list and
without gaps. No record is busy. Each record has an ID of its own: the first
with an ID keeps it, and the others get free ones. The name is filled up with
zeros.

A file that cannot be read as a database is refused as by 'palmheap list', and
nothing is written. If OUT is '-', the new file goes to standard output, and
what is printed goes to standard error.

With --keep the new file keeps what the list names, and the line says what
changed besides:

  ids     the IDs of the records, also 0 and repeated ones, and the seed
  filler  the bytes between the entries and the first block
  order   the order of the blocks in the file

So 'palmheap canonical --keep ids,order old.pdb new.pdb' prints 'changes busy'.
If the new file would have more than 4294967293 bytes, 'bad TooLarge' is
printed.

With --check no file is written. For each FILE it prints the last line of
'palmheap list', 'canonical' or 'changes' and words, and the exit status is 0
for both. With several FILEs or --path, a line with the path comes before it.
'palmheap canonical --check a.pdb b.pdb' prints:

  ==> a.pdb <==
  canonical
  ==> b.pdb <==
  changes busy ids order";

pub(crate) const SALVAGES: &str = "\
For example, 'palmheap salvage broken.pdb new.pdb' writes new.pdb, a file
without a fault. It prints 'ok' with its length, and a line for each fault of
broken.pdb:

  ok 100
  entry 1 offset 113 beyond the end: dropped

An entry is kept if its offset is sound: not before the end of the entries, and
not beyond the end of the file. It keeps its attributes, its ID, and the bytes
up to the next sound offset. A deleted record without data is kept, too. The
other lines are:

  entries 5: the file ends in entry 4
  chained list: ignored
  name empty: Recovered
  app offset 12 within the entries: dropped

The new file is written as by 'palmheap canonical'. With --exact-ids each record
keeps its ID, even 0 or that of another record. A file without a fault gives
its canonical form and no line. Only a file under 78 bytes is refused.

A wrong offset that is sound is not noticed. If the file ends in an entry, the
number of entries can be wrong: correct that first. If OUT is '-', the new file
goes to standard output, and what is printed goes to standard error.";

pub(crate) const BLOCKS: &str = "\
For example, 'palmheap get MemoDB.pdb 0' writes the data of the first record
to standard output. BLOCK is an index, as 'palmheap list' shows it; 'app' for
the AppInfo block; or 'sort' for the SortInfo block. A resource may also be
named by its type and id: 'palmheap get Tool.prc tSTR 1000' writes the data of
the first one that has both. Nothing else is written to standard output, and
no byte is changed.

All lines go to standard error. A file that cannot be read as a database is
refused as by 'palmheap list'. If the file does not have the block, the line
'refused' has the number and the name of the refusal, and the exit status is
1:

  refused 14 IndexOutOfRange

'palmheap explain IndexOutOfRange' prints what that means.";

pub(crate) const NEW_BLOCKS: &str = "\
For example, 'palmheap put MemoDB.pdb 0 memo.bin New.pdb' writes MemoDB.pdb to
New.pdb, with the bytes of memo.bin as the data of its first record, and prints
'ok' and the size of the new file. BLOCK is an index, as 'palmheap list' shows
it; 'app' for the AppInfo block; or 'sort' for the SortInfo block. All else
stays as it is: attributes, IDs, the name, the bytes before the first block and
the order of the blocks. Only offsets move. 'palmheap get' writes a block.

A file that cannot be read as a database, and a block that it does not have,
are refused as by 'palmheap get'. There are two more lines:

  bad TooLarge   the new file would have more than 4294967293 bytes
  bad EmptyPart  PART has no bytes, and the block after this one in the file
                 comes before it in the list: both would have one offset, and
                 the other one would be read as the empty block

If OUT is '-', the new file goes to standard output, and what is printed goes
to standard error.";

pub(crate) const UNPACKING: &str = "\
For example, 'palmheap unpack MemoDB.pdb memos' makes the folder memos with
the file 00000, which has the data of the first record, and with the text
'database':

  name \"MemoDB\"
  attributes 0000
  version 0
  created 3878595035
  modified 0
  backup 0
  number 0
  type \"DATA\"
  creator \"memo\"
  seed 00000000
  app none
  sort none
  record 01 1 00000

It prints 'ok' with the number of files. The attributes of a database and of a
record and the seed are in hex. Dates are seconds since 1904-01-01. 'app' and
'sort' have the names of the files with the info blocks, or 'none'. A record
has its attributes, its ID and the name of its file, a resource its type, its
id and the name of its file. 'palmheap pack' puts the files together again.

With --exact the folder keeps all of the file, and 'palmheap pack' gives it
back, byte for byte. The text then begins with more lines: 'exact';
'namefield' with the bytes after the name, if one isn't zero; 'filler' with the
name of the file that has the bytes before the first block, or 'none'; and
'order' for each block, with 'app', 'sort' or the index of an entry, unless the
blocks are in the order of the list.";

pub(crate) const PACKING: &str = "\
For example, 'palmheap pack memos new.pdb' writes the database whose text is
memos/database, and prints 'ok' with its length. 'palmheap unpack' makes such a
folder, and 'palmheap help unpack' shows the text.

Change files and lines, and put lines in or take them out. Each entry has a
line, in the order of the entries:

  record 01 0 new           attributes in hex, ID, and the name of a file
  resource \"tSTR\" 1000 s    type, id, and the name of a file

A record with the ID 0 gets a free one, but not in a folder that was unpacked
with --exact. Only a record with the attribute 80, which is deleted, may have
'none' for its file. The name of a file has letters, digits, '_', '-' and '.',
and begins with a letter, a digit or '_'. A line that is empty or starts with
'#' is passed over. For a faulty line 'pack' prints 'line', its number and what
is wrong in it, and the exit status is 1.";

pub(crate) const STORES: &str = "\
For example, 'palmheap import memos.img MemoDB.pdb' makes an image that is
just large enough for the database, and prints 'ok' with its size and its slot
count, and 'ok' for each file:

  ok 168 3
  ok

The line 'needs' of 'palmheap list' has the same numbers for one file. If a
file is refused, the line 'refused' has the number and the name of the
refusal, standard error has the name of the file, and no image is written. The
exit status is 1 then.

'palmheap databases memos.img' prints 'ok' with the number of databases, and a
line for each:

  ok 1
  \"MemoDB\" records \"DATA\" \"memo\" 0000 1 97

The line has the name, which entries the database has, the type, the creator,
the attributes in hex, the number of entries, and how many bytes its file has.
With --json it prints one JSON document, on one line:

  {\"databases\":[{\"name\":\"MemoDB\",\"name_hex\":\"4d656d6f4442\",
   \"kind\":\"records\",\"type\":\"DATA\",\"type_hex\":\"44415441\",\"creator\":\"memo\",
   \"creator_hex\":\"6d656d6f\",\"attributes\":0,\"count\":1,\"size\":97}]}

'palmheap export memos.img out' writes the file out/MemoDB.pdb, and prints
'ok' with the number of files. The name of a file is the name of the database,
with '.pdb' for records and '.prc' for resources. A byte that is no printable
ASCII character, '/', '%', and '.' at the start are spelled '%' and two hex
digits. If a file is there, nothing is written, and the exit status is 3.";

pub(crate) const MEANINGS: &str = "\
For example, 'palmheap explain BadOffset' prints, in one line:

  BadOffset e, a fault of a PDB or PRC file: the data offset of the entry
  e, from 0, is the first that is below the end of the entries or above
  the length of the file. A record with the delete bit may have 0.

It prints a line for each fault or refusal of that name, or for the refusal of
that number: 'palmheap explain 25'. It also knows the words after 'changes' of
'palmheap list'. Upper and lower case are the same, and what follows the name
is ignored. Of a printed line that begins with 'bad', 'refused', 'changes' or
'line', the first name is explained: 'palmheap explain bad BadOffset 1'. If
there is none of that name, standard error says so, and the exit status is 2.";
